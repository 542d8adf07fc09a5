// The table of everything that can become a vertex, with its inclusion and its number, in listing order. It is of contracts alone: no code has it.
// There is nothing to run here.
#![tactic(auto)]
