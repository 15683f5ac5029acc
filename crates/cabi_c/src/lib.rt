// What C calls: each function of `cabi` under its name as a symbol of the archive, with the same clauses and, as `call`, the record by which `demands`
// speaks of it. A static library of its own, since no other crate can stand on
// one: so each function stays twice, here and in `cabi`.
#![tactic(auto)]

mod searches;
mod sets;
mod sheets;
mod walks;
