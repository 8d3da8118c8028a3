// The cut rule, over laws of files on disks, in specs/ and proofs/. No code.
#![tactic(auto)]
