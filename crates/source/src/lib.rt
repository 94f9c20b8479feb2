// Which source line was that: the entry of a function's debug locations that an address belongs to, in specs/, with
// examples; what holds of it, in proofs/. It has no code.
#![tactic(auto)]
