// The definitions of documents 01 and 02, in specs/, one file to a heading of document 01. specs/Cases.antt has their
// worked cases, proved.
// Document 01: "The starred cases are proved about the definitions, gathered in a table with a shared theorem"
#![tactic(auto)]
