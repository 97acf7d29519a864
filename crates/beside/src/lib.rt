// Theory alone: calls beside the hub in lists with the six calls, and what follows for every such list.
#![tactic(auto)]
