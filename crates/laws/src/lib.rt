// Laws of files on a disk: what soundness says, what a tree reads, what the cut rule asks of files, in specs/ and proofs/. No code.
#![tactic(auto)]
