// The figures P1 to P9, proved as one table: specs/Figures.antt.

#![tactic(auto)]
