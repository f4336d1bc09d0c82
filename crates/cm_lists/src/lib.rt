//! Lemmas that speak of nothing of the project: tests, numbers, orders, lists, texts. It has no code.
#![tactic(auto)]
