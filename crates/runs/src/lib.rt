// Whole run and stems, of the two calls as they are: the theorem of stems with the contracts of `voices::tick` and `alone::tick_voice` in
// the place of the definitions, and that there are such runs (specs/Runs). No code.
#![tactic(auto)]
