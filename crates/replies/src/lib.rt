// Theorems on the link and the replies, about the programs of crates link, reply and the requests. No function.
#![tactic(auto)]
