// The three demands as statements about the code: no code, only what follows from the promises of the public functions. See specs/.
#![tactic(auto)]
