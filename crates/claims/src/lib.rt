// Claims on the definitions of `paper`, computed: texts, tables and events, each with the answer that document 01 gives it.
#![tactic(auto)]
