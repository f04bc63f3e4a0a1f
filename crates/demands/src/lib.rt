// What the customer demands of the entries, as theorems that follow from their contracts alone. No code.
#![tactic(auto)]
