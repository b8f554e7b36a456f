#![tactic(auto)]

// No code: the owner's three demands as theorems (`proofs/Demand1.antt`, `Demand2.antt`, `Demand3.antt`), over what each crate states of its
// entries (`proofs/Entries.antt` there), document 01's starred cases as one list under one claim (`Starred.antt`), wrong programs that the
// contracts don't allow (`WrongPrograms.antt`), whole messages under demand 2 (`Messages.antt`), and what requests asked to be shown
// (`Twelve.antt`, `ShortOrLong.antt`, `OffsetRows.antt`).
