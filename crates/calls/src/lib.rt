// The theory of sweep calls: a sweep, lists of its calls, and the plain sweep that knows no search. Definitions in specs/, laws in proofs/, and no code.

#![tactic(auto)]
