// The records that a node writes, of either kind: S-CDRs (PDP contexts) and M-CDRs (subscribers); and lists of them, each after its mark.
// This crate has no code: the readers and writers of each kind are in `scdr` and `mcdr`, and `entries` goes through lists.

#![tactic(auto)]
