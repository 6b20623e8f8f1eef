// Derivations: what accepted sheets state. Theorems only; nothing runs here.
#![tactic(auto)]
