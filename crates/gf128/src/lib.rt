// No function: the field and POLYVAL, as definitions in specs/.
#![tactic(auto)]
