// Laws of the log: stores in a row, the header, the staged blocks, in specs/ and proofs/. No code.
#![tactic(auto)]
