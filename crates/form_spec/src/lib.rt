// Definitions alone: the setter's way from form to sheet and back, and that the form of a sheet gives the sheet.
#![tactic(auto)]
