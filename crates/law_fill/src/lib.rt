// Laws on the walk through a call: what holds of every record that it passes through. No code.

#![tactic(auto)]
