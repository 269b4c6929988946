// Figures: amounts and days that differ from year to year, under the names by which facts speak of them.
ghost use Rattle.std.specs.Prelude.{◌≡◌};
ghost use Rattle.written_facts.specs.Figures.{figures_view, text_under};

/// An amount or a day by its name, as a dictionary spells it.
#[derive(Clone, Copy)]
pub struct Figure<'a> {
    pub name: &'a str,
    pub text: &'a str,
}

/// The text of the first figure of this name, and no text where there is none.
pub fn text_of<'a>(figures: &[Figure<'a>], name: &str) -> &'a str
    ensures { result.now ≡ text_under (figures_view figures.now) name.now }
{
    for figure in figures {
        if figure.name == name {
            return figure.text;
        }
    }
    ""
}
