// Theory alone: the log of a text as a definition, and the run over the lent tables that writes it.
#![tactic(auto)]
