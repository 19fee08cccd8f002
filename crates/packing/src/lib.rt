// What it is to pack a picture: the one regular block file, and what the call answers. It has definitions and laws, no code.
#![tactic(auto)]
