// What a listener on a stream of bytes hands out, and what a repeated search finds, over any form of n bytes: definitions and laws.
// There is no code here.
#![tactic(auto)]
