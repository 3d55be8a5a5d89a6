// Definitions and laws that every layer shares: tests that tell facts, steps, least witnesses. No code.
#![tactic(auto)]
