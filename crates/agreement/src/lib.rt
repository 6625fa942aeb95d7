// The control book of document 01, and the theorem that no list of calls parts it from the sonde and its volume. No function stands here.

#![tactic(auto)]
