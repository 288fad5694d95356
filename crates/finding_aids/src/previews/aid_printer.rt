//! The finding aids of a file's trees.
ghost use Rattle.std.specs.Prelude.{◌≡◌, ◌≤◌, ◌+◌, ◌++◌, []};
ghost use Rattle.std.specs.Prelude.{IfOk, OnOk, List, map, option_copied, unwrap_or};
ghost use Rattle.isad_core.specs.Limits.{most_deep};
ghost use Rattle.isad_core.specs.PrintedDescriptions.{aid, unit_lines};
ghost use Rattle.finding_aids.specs.RowTrees.{grove, height_of_all};
ghost use Rattle.finding_aids.specs.Numbers.{number_by};
ghost use Rattle.catalogue_core.specs.Aids.{shown_by, shown_told};

use crate::previews::numbers::{Numbers, number_of};
use crate::previews::trees::Tree;
use isad_core::{Body, BoxKey, Element, List, Shown, Text, Values, aid_text, join_code};
use std::alloc::{AllocError, Global};

/// What every finding aid of a file needs.
#[derive(Drop)]
pub struct Printer<'a> {
    pub alloc: Global,
    /// The first parts of every reference code.
    pub country: &'a str,
    pub repo: &'a str,
    /// The numbers of the file's containers.
    pub numbers: Numbers<'a>,
}

impl<'a> Printer<'a> {
    /// How a unit is shown. `ids` are the identifiers from the top down to it.
    fn show(&self, ids: &[Text], depth: u32, values: &'a Values) -> Result<Shown, AllocError>
        ensures { IfOk result (λ shown. shown
            ≡ shown_told (record { country = self.now.country.now; repo = self.now.repo.now })
            (number_by self.now.numbers) ids.now depth values.now) }
    {
        Ok(Shown {
            depth,
            code: join_code(self.alloc, self.country, self.repo, ids)?,
            level: values.level.clone()?,
            title: text_or_empty(self.alloc, values.text(Element::Title))?,
            body: Body::Full {
                lines: values.lines(self.alloc)?,
                boxes: self.number_containers(values.boxes.as_slice())?,
            },
        })
    }

    /// Appends the finding aids of trees that lie below units with these identifiers. The depths must be 64 at most.
    /// After an error the contract does not say what `out` and `ids` have.
    pub fn print_trees(
        &self,
        out: &mut Vec<u8>,
        ids: &mut Vec<Text>,
        depth: u32,
        trees: &[Tree<'a>],
    ) -> Result<(), AllocError>
        requires { depth + height_of_all trees.now ≤ most_deep }
        ensures printed { OnOk result (out.new.items ≡ out.old.items
            ++ aid (shown_by (record { country = self.now.country.now; repo = self.now.repo.now })
            (number_by self.now.numbers) ids.old.items depth (grove trees.now))) }
        ensures ids { OnOk result (ids.new.items ≡ ids.old.items) }
    {
        for tree in trees {
            ids.push(text_or_empty(self.alloc, tree.row.values.text(Element::ReferenceCode))?)?;
            self.print_unit(out, ids.as_slice(), depth, &tree.row.values)?;
            self.print_trees(out, ids, depth + 1, tree.children.as_slice())?;
            ids.pop();
        }
        Ok(())
    }

    /// Prints one unit.
    fn print_unit(
        &self,
        out: &mut Vec<u8>,
        ids: &[Text],
        depth: u32,
        values: &'a Values,
    ) -> Result<(), AllocError>
        ensures { OnOk result (out.new.items ≡ out.old.items
            ++ unit_lines (shown_told (record { country = self.now.country.now; repo = self.now.repo.now })
            (number_by self.now.numbers) ids.now depth values.now)) }
    {
        let shown = self.show(ids, depth, values)?;
        let text = aid_text(self.alloc, &[shown])?;
        out.extend_from_slice(text.as_slice())
    }

    /// The number and the name of each container.
    fn number_containers(&self, boxes: &'a [BoxKey]) -> Result<List<(u64, Text)>, AllocError>
        ensures { IfOk result (λ numbered. numbered ≡ map (λ b. (number_by self.now.numbers b, b.name)) boxes.now) }
    {
        let mut numbered = List::new(self.alloc);
        for container in boxes {
            let number = number_of(&self.numbers, container).unwrap_or(0);
            numbered.push((number, container.name.clone()?))?;
        }
        Ok(numbered)
    }
}

/// A copy of a text, or the empty text for none.
fn text_or_empty(alloc: Global, text: Option<&Text>) -> Result<Text, AllocError>
    ensures { IfOk result (λ t. t ≡ unwrap_or (option_copied text.entry) []) }
{
    match text {
        Some(text) => text.clone(),
        None => Text::new(alloc, ""),
    }
}
