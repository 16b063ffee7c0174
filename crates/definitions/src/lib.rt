#![tactic(auto)]

// The definitions of document 01 have no code of their own: they stand in specs/, and the crates with code are proved against them.
