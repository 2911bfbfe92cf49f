// What one command leaves of one tag's image, and what two images have in common that differ in hidden passwords: definitions, claims and laws, no code.
#![tactic(auto)]
