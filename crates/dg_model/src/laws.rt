// What the definitions together say. Each law is a function that does nothing.
ghost use Rattle.dg_model.specs.Laws.{DriversAreEdges, WidthsAreOfEdges, TypesAreOfEdges, ValuesAreOfEdges};
ghost use Rattle.dg_model.specs.Laws.{InputsAreListed, OutputsAreListed};
ghost use Rattle.dg_model.specs.Laws.{ColumnsMakeStimulus, ColumnsComeBack, StimulusGivesColumns};

/// In a wired diagram the edges into a block stand in order of its input ports, one for each, and what
/// its inputs carry is what stands at the sources of these edges.
pub fn edges_stand_by_port()
    ensures drivers { DriversAreEdges }
    ensures widths { WidthsAreOfEdges }
    ensures types { TypesAreOfEdges }
    ensures values { ValuesAreOfEdges }
{}

/// The lists of root elements have each element of each root port of a wired diagram at one place, and
/// nothing else.
pub fn root_elements_are_listed()
    ensures inputs { InputsAreListed }
    ensures outputs { OutputsAreListed }
{}

/// Columns of numbers in range, one for each root input element in order, are a stimulus, and a stimulus
/// is such columns.
pub fn columns_are_a_stimulus()
    ensures made { ColumnsMakeStimulus }
    ensures kept { ColumnsComeBack }
    ensures given { StimulusGivesColumns }
{}
