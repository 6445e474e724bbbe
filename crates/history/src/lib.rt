// The theorem about any list of calls; it stands in specs/.
#![tactic(auto)]
