// Laws alone: what links of records tell of relations and findings. There is no code here.
#![tactic(auto)]
