// What postings do to a book, as theorems, in proofs/; their words are in specs/. There is no code.
#![tactic(auto)]
