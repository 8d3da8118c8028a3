// Laws of the list helpers of crate spec, in specs/. No code.
#![tactic(auto)]
