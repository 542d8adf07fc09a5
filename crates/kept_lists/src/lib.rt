// The lists of what is kept, vertices and crossings, as contracts speak of them, and the table that they stand for. There is nothing to run here.
#![tactic(auto)]
