// Wrong stores, each of which a row of the table of examples refutes: specs/Wrong.antt, theorem `every-wrong`.
#![tactic(auto)]
