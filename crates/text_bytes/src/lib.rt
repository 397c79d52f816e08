// What reading and printing share: texts as bytes. There is no code here; specs/ has the definitions.

#![tactic(auto)]
