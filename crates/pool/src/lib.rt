// The pool and its sheet: definitions and theorems. No code.
#![tactic(auto)]
