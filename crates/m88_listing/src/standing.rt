//! Where the modules of a unit stand.
ghost use Rattle.std.specs.Prelude.{◌≡◌, IfOk, Some};
ghost use Rattle.m88_link.specs.Bases.{section_size, stood};
ghost use Rattle.m88_link.specs.Symbols.{placed_value, value_in};
ghost use Rattle.m88_asm.specs.Objects.{objects_of, symbols_in};
ghost use Rattle.m88_asm.specs.Units.{base_in, based};

use m88_base::Name;
use m88_link::{Placement, Symbol};
use m88_parse::{Module, Statement, Unit};
use std::alloc::{AllocError, Global};
use std::marker::Model;

/// A module, and where its object stands.
#[derive(Drop)]
pub(crate) struct Standing<'a> {
    part: &'a Module,
    object: &'a Placement<'a>,
}

impl<'a> Model for Standing<'a> {
    ghost use Rattle.std.specs.Prelude.{◌≡◌};
    ghost use Rattle.m88_asm.specs.Objects.{object_of};
    ghost use Rattle.m88_link.specs.Bases.{Placement as PlacementValue};
    ghost use Rattle.m88_parse.specs.declared.unit.Module.{Module as ModuleValue};
    ghost use Rattle.m88_listing.specs.Inside.Slots.{standing};

    ghost Value = { PlacementValue ModuleValue };

    ghost view = { λ s. standing s.part.now s.object.now };

    ghost invariant = { λ s. s.object.now.part ≡ object_of s.part.now };
}

impl Standing<'_> {
    /// The name of the module.
    pub fn name(&self) -> Name
        ensures { result ≡ self.now.part.name }
    {
        self.part.name
    }

    /// The statements of the module.
    pub fn statements(&self) -> &[Statement]
        ensures { result.now ≡ self.now.part.statements }
    {
        self.part.statements.as_slice()
    }

    /// The symbols of the module, in order of definition.
    pub fn symbols(&self) -> &[Symbol]
        ensures { result.now ≡ symbols_in self.now.part }
    {
        self.object.symbols()
    }

    /// The address of the first byte of a section, 0 where there is no such section.
    pub fn base(&self, index: usize) -> u32
        ensures { result ≡ base_in self.now index }
    {
        self.object.base(index)
    }

    /// The address of a place of a section, which is 0 behind the last address.
    pub fn address(&self, index: usize, offset: usize) -> u32
        ensures { result ≡ placed_value (base_in self.now) (Some index) offset }
    {
        self.base(index)
            .wrapping_add((offset % 0x1_0000_0000) as u32)
    }

    /// The value of a symbol of the module.
    pub fn value(&self, symbol: &Symbol) -> u32
        ensures { result ≡ value_in (base_in self.now) symbol.now }
    {
        self.object.value(symbol.section, symbol.value)
    }
}

/// The modules of a unit where its objects stand.
pub(crate) fn standings<'a>(
    alloc: Global,
    unit: &'a Unit,
    objects: &'a [Placement<'a>],
) -> Result<Vec<Standing<'a>>, AllocError>
    requires { objects.now ≡ stood section_size (objects_of unit.now) }
    ensures { IfOk result (λ standings. standings.items ≡ based unit.now) }
{
    let parts = unit.modules.as_slice();
    let mut standings = Vec::new(alloc);
    for index in 0..parts.len() {
        standings.push(Standing {
            part: &parts[index],
            object: &objects[index],
        })?;
    }
    Ok(standings)
}
