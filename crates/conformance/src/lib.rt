// Document 01's starred cases, then cases of document 02: definitions and one theorem, no code.

#![tactic(auto)]
