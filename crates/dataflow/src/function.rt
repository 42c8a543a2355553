// The function of an accepted sheet, as far as the call keeps it beside the workspace.
ghost use Rattle.std.specs.Prelude.{◌≤◌, ◌<◌};
ghost use Rattle.model.specs.Limits.{most_identifiers, most_functions, most_params, most_context, most_blocks};

use building::Building;
use hir::Place;
use hir::at::List;

// What the call needs of the sheet: whether errors are recorded, whether it is a function expression, whether an instruction may have an effect to copy or an Apply, the identifiers, how many inner functions, parameters and context places there are, returns, and the blocks. No count is above its limit, and returns has an identifier.
#[derive(Clone, Copy, Debug, PartialEq, Eq)]
pub struct HirFunction {
    pub errors: bool,
    pub function_expression: bool,
    pub copies: bool,
    pub applies: bool,
    pub identifiers: List,
    pub m: u32,
    pub params: u32,
    pub context: u32,
    pub returns: Place,
    pub blocks: List,
    pub ghost identifiers_few: { identifiers.count ≤ most_identifiers },
    pub ghost functions_few: { m ≤ most_functions },
    pub ghost params_few: { params ≤ most_params },
    pub ghost context_few: { context ≤ most_context },
    pub ghost blocks_few: { blocks.count ≤ most_blocks },
    pub ghost returns_below: { returns.identifier.0 < identifiers.count },
}

// The function and its building.
#[derive(Clone, Copy, Debug, PartialEq, Eq)]
pub struct Read {
    pub function: HirFunction,
    pub building: Building,
}
