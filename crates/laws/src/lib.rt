// The laws of the definitions: what is proved of them, and no code. See specs/.
#![tactic(auto)]
