// The briefing's second and third demands in one place: from bytes to bytes, what is judged, and that a requirement and its translation are judged alike. No code.
#![tactic(auto)]
