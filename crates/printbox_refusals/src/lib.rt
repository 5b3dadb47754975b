// The refusals that an entry of the library can give. They stand in specs/, under one statement; there is no code.
#![tactic(auto)]
