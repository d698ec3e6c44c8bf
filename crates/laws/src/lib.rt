// Laws alone: no function runs here.
#![tactic(auto)]
