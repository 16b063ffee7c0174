#![tactic(auto)]

// The theory of machines has no code: its definitions stand in specs/, its laws in proofs/.
