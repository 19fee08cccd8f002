// What a list of a mode is (document 01, "What may be asked"; document 02, P3), and what the call for one answers and leaves.
#![tactic(auto)]
