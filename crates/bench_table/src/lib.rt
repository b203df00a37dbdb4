// Document 01's bench table, proved in one theorem (specs/BenchTable.antt), and rows of document 02's requests; there is no code here.
#![tactic(auto)]
