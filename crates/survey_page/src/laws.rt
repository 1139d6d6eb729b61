//! Laws of pages, each the contract of a function that does nothing.

ghost use Rattle.std.specs.Prelude.{◌≡◌, ◌==◌, ◌++◌, List, false};
ghost use Rattle.std.specs.List.{list_any};
ghost use Rattle.survey_page.specs.Forms.{html_form, page_data};
ghost use Rattle.survey_page.specs.declared.page.TheConstants.{PAGE_HEAD, PAGE_TAIL};
ghost use Rattle.survey_text.specs.Forms.{FormEntry, text_in};

/// A page is its head, its data and its tail.
pub fn page_is_head_data_and_tail()
    ensures { (entries : List FormEntry) → text_in html_form entries
        ≡ PAGE_HEAD.now ++ (page_data entries ++ PAGE_TAIL.now) }
{}

/// No byte of the data is `<`, whatever names and texts the entries have: nothing of them ends the
/// element in which the data stands.
#[tactic(auto, using(crate::proofs::DataLemmas::data_lacks))]
pub fn page_data_has_no_less_than_sign()
    ensures { (entries : List FormEntry) → list_any (λ byte. byte == 60) (page_data entries) ≡ false }
{}
