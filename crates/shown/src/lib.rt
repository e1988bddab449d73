// No code: the sheets of document 01, "Sheets on both sides of the line", proved together by one statement over the list of them.
#![tactic(auto)]
