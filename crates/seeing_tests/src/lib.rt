//! Tests of the public calls of the crates of the floors ground and seeing.
#![tactic(auto)]

#[cfg(test)]
mod acas_base_tests;
#[cfg(test)]
mod acas_io_tests;
#[cfg(test)]
mod acas_lines_tests;
#[cfg(test)]
mod acas_num_tests;
#[cfg(test)]
mod acas_text_tests;
#[cfg(test)]
mod alt_track_tests;
#[cfg(test)]
mod craft_view_tests;
#[cfg(test)]
mod flight_tests;
#[cfg(test)]
mod miss_test_tests;
#[cfg(test)]
mod plot_axes_tests;
#[cfg(test)]
mod profile_two_tests;
#[cfg(test)]
mod profiled;
#[cfg(test)]
mod project_tests;
#[cfg(test)]
mod range_track_tests;
#[cfg(test)]
mod sens_table_tests;
#[cfg(test)]
mod square_track_tests;
#[cfg(test)]
mod svg_text_tests;
#[cfg(test)]
mod tau_test_tests;
#[cfg(test)]
mod test_seconds_tests;
#[cfg(test)]
mod track_file_tests;
#[cfg(test)]
mod vert_test_tests;
