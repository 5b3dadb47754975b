// The starred cases of the requirements. They stand in specs/, under one statement; there is no code.
#![tactic(auto)]
