// What answers a sheet (document 01, 'Writer and printout'): the text, what is promised of it, and examples. No code.
#![tactic(auto)]
